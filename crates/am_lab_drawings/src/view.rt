//! The picture of a report: its rows, the ways of its packets, and the lanes of its endpoints, for which a cluster
//! makes the journal's entries again and is asked after each.

ghost use Rattle.am_check.specs.Exact.{IsChecked};
ghost use Rattle.am_check.specs.Verdict.{IsReportOf};
ghost use Rattle.am_lab_drawings.specs.View.Pictures.{Shows, ShowsOf};
ghost use Rattle.am_lab_drawings.specs.declared.view.parts.PictureFault.TheVariants.{NoMemory as Starved};
ghost use Rattle.am_scenario_types.specs.Lawful.{IsLawful};
ghost use Rattle.am_scenario_types.specs.declared.parts.Form.{Form as Kind};
ghost use Rattle.std.specs.Prelude.{◌≡◌, ◌⊎◌, ◌<◌, ◌^◌, Err, length};

mod lanes;
mod laws;
mod messages;
mod parts;
mod pictures;
mod steps;
mod tracks;

use crate::view::pictures::picture_in;
pub(crate) use crate::view::pictures::picture_part;
pub use am_lab_picture::Picture;
use am_lab_reasons::parts_of;
use am_names::NoMemory;
use am_scenario::Form;
pub use laws::{
    each_receipt_has_its_arrow, lanes_are_the_states, message_pictures_are_of_messages,
    receipts_are_those_of_reasons,
};
pub use messages::message_picture;
pub(crate) use parts::MOST_ROWS;
pub use parts::{LineRange, PictureFault};
use std::alloc::Global;

/// The picture of some lines of the report in a text which is that of a journal that follows the scenario in front of
/// it: of those that the part names, or of all the journal's. A part that has no line, or a line that is none of the
/// journal's, is refused with `NoSuchLines`, and more than 20,000 lines with `TooManyRows`.
///
/// `NoMemory` comes where there is none for the journal that is made again, or for the picture.
pub fn picture(
    alloc: Global,
    form: Form,
    text: &[u8],
    part: Option<LineRange>,
) -> Result<Picture, PictureFault>
    requires few { length text.now < 2 ^ 31 }
    requires checked { IsChecked form text.now }
    ensures { (result ≡ Err Starved) ⊎ Shows form text.now part result }
{
    match parts_of(alloc, form, text) {
        Ok((scenario, bytes)) => picture_in(alloc, &scenario, bytes, part),
        Err(NoMemory) => Err(PictureFault::NoMemory),
    }
}
