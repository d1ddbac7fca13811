//! How a picture is laid out, before any of it is drawn: where its rows and lanes lie, and what sign, colour and text
//! an entry, a packet and a place have there.
mod laws;
mod layout;
mod signs;
mod words;

pub use self::laws::rows_go_down;
pub use self::layout::{
    TOP, band_left, band_width, bottom, has_interfaces, has_text, left_of, pages, width, x_of_end,
    x_of_interface, y_of,
};
pub use self::signs::{
    Ending, Link, Spot, ending_dashes, ending_sign, inner_of, label_of, link_of, sign_of, spot_of,
};
pub use self::words::{
    class_of, fate_class, fate_sign, frame_of, head_of, opacity, packet_dashes, place_class,
};
