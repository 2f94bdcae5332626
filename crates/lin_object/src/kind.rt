//! The kinds of object, by name.
ghost use Rattle.std.specs.Prelude.{◌≡◌};
ghost use Rattle.lin_object.specs.Names.{beside};
ghost use Rattle.lin_object.specs.Kinds.{kind_names, starts_with_number};

/// The kinds of object that a history may declare.
#[derive(Clone, Copy, PartialEq, Eq, Hash, Debug)]
pub enum Kind {
    /// One value, to be written, read, or compared and set.
    Register,
    /// A number that is added to.
    Counter,
    /// Items that come out in the order in which they went in.
    Queue,
    /// Items of which the newest comes out first.
    Stack,
    /// Items that are in it or not.
    Set,
    /// A lock that one process at a time holds.
    Mutex,
    /// Keys, each with a value.
    Map,
}

impl Kind {
    /// Whether a declaration of the kind may say with which number its object starts.
    pub fn starts_with_number(self) -> bool
        ensures { result ≡ starts_with_number self }
    {
        match self {
            Kind::Register | Kind::Counter => true,
            Kind::Queue | Kind::Stack | Kind::Set | Kind::Mutex | Kind::Map => false,
        }
    }
}

/// The kind that a declaration calls by this name; `None` where there is none.
pub fn kind_of_name(name: &str) -> Option<Kind>
    ensures { result ≡ beside kind_names name.now }
{
    match name {
        "register" => Some(Kind::Register),
        "counter" => Some(Kind::Counter),
        "queue" => Some(Kind::Queue),
        "stack" => Some(Kind::Stack),
        "set" => Some(Kind::Set),
        "mutex" => Some(Kind::Mutex),
        "map" => Some(Kind::Map),
        _ => None,
    }
}
