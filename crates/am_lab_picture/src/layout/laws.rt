//! How the rows of a picture lie.

ghost use Rattle.std.specs.Prelude.{◌≡◌, ℕ, ◌<◌, ◌≤◌, true};
ghost use Rattle.am_lab_picture.specs.Layout.Layout.{bottom, top, y_of};
ghost use Rattle.am_lab_picture.specs.Data.{PictureLists};
ghost use Rattle.am_lab_picture.specs.Rows.{has_row};

/// Of the lines of a picture that have rows later ones lie below earlier ones, and all lines between its upper and its lower
/// edge.
pub fn rows_go_down()
    ensures below { (p : PictureLists) (earlier later : ℕ) → has_row p.rows earlier ≡ true → has_row p.rows later ≡ true → earlier < later → y_of p earlier < y_of p later }
    ensures inside { (p : PictureLists) (line : ℕ) → (top ≤ y_of p line) × (y_of p line ≤ bottom p) }
{}
