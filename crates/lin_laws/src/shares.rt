//! What the calls of a counter add, upwards or downwards.

ghost use Rattle.std.specs.Prelude.{◌≡◌, ◌≤◌, ◌^◌};
ghost use Rattle.lin_laws.specs.Shares.{share_in, share_of};

use lin_object::Op;

/// What the number adds in the direction.
pub fn share_in(up: bool, value: i64) -> u64
    ensures share { result ≡ share_in up value }
    ensures few { result ≤ 2 ^ 63 }
{
    if (value >= 0) == up {
        value.unsigned_abs()
    } else {
        0
    }
}

/// What the operation adds upwards, or else downwards: at most 2^63.
pub fn share_of(up: bool, op: &Op) -> u64
    ensures share { result ≡ share_of up op.now }
    ensures few { result ≤ 2 ^ 63 }
{
    match op {
        Op::Add(difference) => share_in(up, *difference),
        _ => 0,
    }
}
