//! Replies: what calls answer, as reports show it.
ghost use Rattle.std.specs.Prelude.{◌≡◌, ◌++◌, OnOk, OnErr};
ghost use Rattle.lin_object.specs.PrintedForms.{reply_text};

use std::alloc::{AllocError, Global};
use std::fmt;

/// What a call answers.
#[derive(Clone, Copy, PartialEq, Eq, Hash, Debug)]
pub enum Reply {
    /// Done: the operation has nothing to return.
    Okay,
    /// A value.
    Int(i64),
    /// Yes or no.
    Flag(bool),
    /// There was no value to give.
    Empty,
}

impl fmt::Display for Reply {
    ghost use Rattle.std.specs.Prelude.{Some};
    ghost use Rattle.lin_object.specs.PrintedForms.{reply_text};

    ghost output = { λ reply. Some (reply_text reply) };

    fn fmt<W: fmt::Write>(&self, f: &mut fmt::Formatter<W>) -> fmt::Result {
        match self {
            Reply::Okay => write!(f, "ok"),
            Reply::Int(value) => write!(f, "{value}"),
            Reply::Flag(flag) => write!(f, "{flag}"),
            Reply::Empty => write!(f, "empty"),
        }
    }
}

/// Appends the reply as reports show it. After an `Err` the vector is unchanged.
pub fn write_reply(alloc: Global, reply: &Reply, out: &mut Vec<u8>) -> Result<(), AllocError>
    ensures ok { OnOk result (out.new.items ≡ out.old.items ++ reply_text reply.now) }
    ensures err { OnErr result (out.new.items ≡ out.old.items) }
{
    let text = format!(in alloc; "{reply}")?;
    out.extend_from_slice(text.as_bytes())
}
