//! The entries of a journal's lines, made one after the other.

ghost use Rattle.am_lab_reasons.specs.Journal.Lines.{AreLines, HasLines};
ghost use Rattle.am_lexer.specs.Text.{lines_of};
ghost use Rattle.am_office_entries.specs.declared.Entry.{Entry};
ghost use Rattle.std.specs.Prelude.{◌≡◌, [], ℕ, List, IfOk, length};

use am_check_lines::parse_line;
use am_lexer::next_line;
use am_machine::Cluster;
use am_names::NoMemory;

/// Makes the entries that the first so many lines tell on a fresh cluster, and gives the lines that are left.
pub(crate) fn play<'a>(
    cluster: &mut Cluster,
    lines: &'a [u8],
    count: u64,
) -> Result<&'a [u8], NoMemory>
    requires fresh { cluster.old.journal ≡ [] }
    requires lines { HasLines cluster.old.layout (lines_of lines.now) count }
    ensures layout { cluster.new.layout ≡ cluster.old.layout }
    ensures played { (journal : List Entry) (left : List (List ℕ)) → AreLines cluster.old.layout (lines_of lines.now) journal left → length journal ≡ count → IfOk result (λ rest. (cluster.new.journal ≡ journal) × (lines_of rest.now ≡ left)) }
{
    let mut rest = lines;
    for place in 0..count {
        let Some((line, after)) = next_line(rest) else {
            return Err(NoMemory);
        };
        let Some(told) = parse_line(line) else {
            return Err(NoMemory);
        };
        let Ok(()) = cluster.make(&told.event) else {
            return Err(NoMemory);
        };
        rest = after;
    }
    Ok(rest)
}
