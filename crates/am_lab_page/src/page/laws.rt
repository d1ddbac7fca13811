//! What the journal and the changes in a page are to a browser. Each law is the contract of a function with an empty body.

ghost use Rattle.am_lab_page.specs.Page.Laws.{ChangesBeginNoTag, JournalsEndNoScript};

/// The journal in a page has no `</script` and no `<!--`, nor any other `<`: a browser reads all of it as the journal's text.
pub fn journals_end_no_script()
    ensures { JournalsEndNoScript }
{}

/// The text of the changes in a page, as it is written there, has no `<`: a browser reads all of it as text.
pub fn changes_begin_no_tag()
    ensures { ChangesBeginNoTag }
{}
