//! The open list of a string of scalars and closes.
ghost use Rattle.std.specs.Prelude.{◌≡◌, ◌≤◌, length, drop};
ghost use Rattle.lay_node.specs.Strings.{node_of};

use lay_cost::CLOSE;

/// The scalars behind the last close.
pub(crate) fn open_list(string: &[u8]) -> &[u8]
    ensures { result.now ≡ (node_of string.now).open_list }
{
    &string[open_begin(string)..]
}

// Where they begin.
fn open_begin(string: &[u8]) -> usize
    ensures begin { drop result string.now ≡ (node_of string.now).open_list }
    ensures within { result ≤ length string.now }
{
    let mut begin = 0;
    let mut end = 0;
    for sign in string {
        end += 1;
        if *sign == CLOSE {
            begin = end;
        }
    }
    begin
}
