// The table of expression bytes.
ghost use Rattle.std.specs.Prelude.{◌≡◌};
ghost use Rattle.syntax.specs.Bytes.{node_of};

use crate::Node;

// The node that a byte stands for.
pub fn node_of(byte: u8) -> Node
    ensures { result ≡ node_of byte }
{
    match byte {
        0x00 => Node::False,
        0x01 => Node::True,
        0x02 => Node::Empty,
        0x03 => Node::EmptyGuard,
        0x10..=0x13 => Node::Param(byte - 0x10),
        0x20 => Node::Head,
        0x21 => Node::Tail,
        0x22 => Node::Null,
        0x23 => Node::If,
        0x24 => Node::Cons,
        0x80..=0x9F => Node::Call(byte - 0x80),
        _ => Node::Unknown,
    }
}
