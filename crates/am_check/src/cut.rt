//! Where the report begins in a text of a scenario and its report.

ghost use Rattle.am_check.specs.Cut.{is_report, place_of};
ghost use Rattle.std.specs.Prelude.{◌≡◌, ◌≤◌, IfSome, length};

use am_lexer::next_line;

/// Whether a report begins here.
fn is_report(text: &[u8]) -> bool
    ensures { result ≡ is_report text.now }
{
    match next_line(text) {
        Some((line, _)) => line == b"am2 report 1".as_slice(),
        None => false,
    }
}

/// How many bytes stand before the report, if there is one.
#[tactic(auto, unfolding(crate::specs::Cut::place_from))]
pub fn place_of(text: &[u8]) -> Option<usize>
    ensures place { result ≡ place_of text.now }
    ensures within { IfSome result (λ place. place ≤ length text.now) }
{
    let mut begins = true;
    for at in 0..text.len() {
        if begins && is_report(&text[at..]) {
            return Some(at);
        }
        begins = text[at] == b'\n';
    }
    None
}
