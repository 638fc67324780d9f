// The kinds of a function's parameters and result.
ghost use Rattle.std.specs.Prelude.{◌≡◌};
ghost use Rattle.syntax.specs.Kinds.{kind_by, kind_in};

use semantics::{Contact, Kind};

// A kind by its bits of the kinds byte and of the guard byte.
pub fn kind_by(list: bool, guard: bool) -> Kind
    ensures { result ≡ kind_by list guard }
{
    if !list {
        return Kind::Truth;
    }
    Kind::List(if guard { Contact::Guard } else { Contact::Ram })
}

// The kind at a place of a signature, which is the kinds byte of a function and above it the guard byte.
pub fn kind_at(signature: u64, i: u64) -> Kind
    ensures { result ≡ kind_in signature i }
{
    // no number of 64 bits has a bit 8 + i from here on
    let guard = i < 56 && trace::bit(signature, 8 + i);
    kind_by(trace::bit(signature, i), guard)
}
