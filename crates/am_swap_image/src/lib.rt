//! The bytes of an endpoint's body on disk, and which bodies an endpoint may have there.
#![tactic(auto)]

ghost use Rattle.am_swap_image.specs.Examples.{asking_body, asking_image, fresh_body, fresh_image};
ghost use Rattle.am_swap_image.specs.Image.{image};
ghost use Rattle.am_swap_image.specs.Laws.{EachBodyHasItsImage, ImagesAreRead, ImagesAreShort, ReadingIsOfImages, SizesAdd};
ghost use Rattle.am_swap_image.specs.Valid.{IsValid};
ghost use Rattle.am_model.specs.ThinPath.{zero_end};
ghost use Rattle.std.specs.Prelude.{◌≡◌, length, None};

/// The image of a fresh body with tag 7 has 62 bytes.
pub fn a_fresh_body()
    ensures image { image fresh_body ≡ fresh_image }
    ensures length { length (image fresh_body) ≡ 62 }
    ensures valid { IsValid zero_end None fresh_body }
{}

/// The image of a body with one index and one request has 136 bytes.
pub fn an_asking_body()
    ensures image { image asking_body ≡ asking_image }
    ensures length { length (image asking_body) ≡ 136 }
    ensures valid { IsValid zero_end None asking_body }
{}

/// An image takes the bytes of its parts.
pub fn sizes_add()
    ensures { SizesAdd }
{}

/// No two valid bodies of an endpoint have the same image.
pub fn each_body_has_its_image()
    ensures { EachBodyHasItsImage }
{}

/// No image of a valid body is as long as 6,000 bytes.
pub fn images_are_short()
    ensures { ImagesAreShort }
{}

/// From the image of a valid body that body is read.
pub fn images_are_read()
    ensures { ImagesAreRead }
{}

/// Bytes from which a body is read are its image.
pub fn reading_is_of_images()
    ensures { ReadingIsOfImages }
{}
