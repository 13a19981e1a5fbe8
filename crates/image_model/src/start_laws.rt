//! Laws of starts: an image's start has the image's permissions and bytes, and no others. A
//! function here does nothing: its contract is the law.

ghost use Rattle.std.specs.Prelude.{◌≡◌, ℕ, ◌%◌, ◌<◌, nat_lt, ◌&&◌, if◌then◌else◌, List};
ghost use Rattle.image_model.specs.Layout.{IsLayout, AreRegions, IsJoined, byte_in};
ghost use Rattle.image_model.specs.Pages.{page_of, page_limit};
ghost use Rattle.image_model.specs.Permission.{Permission, no_permission, is_some_permission};
ghost use Rattle.image_model.specs.Permission.{permission_in};
ghost use Rattle.image_model.specs.StartOf.{start_of, regions_of, page_permission, file_byte};
ghost use Rattle.image_model.specs.declared.image.Image.{Image};
ghost use Rattle.image_model.specs.declared.region.Region.{Region};

/// A page of a start has the permissions of all segments that have a byte on it and of the
/// stack, joined, and a page at or above 2^38 has none.
pub fn start_has_permissions()
    ensures { (image : Image) (stack page : ℕ) → permission_in (start_of image stack).regions page
        ≡ (if nat_lt page page_limit
        then page_permission image.segments stack page else no_permission) }
{}

/// An address of a start has its file byte where its page has a permission and is below 2^38,
/// and else 0.
pub fn start_has_bytes()
    ensures { (image : Image) (stack a : ℕ) → byte_in (start_of image stack).pages a
        ≡ (if nat_lt (page_of a) page_limit
        && is_some_permission (page_permission image.segments stack (page_of a))
        then file_byte image.segments a else 0) }
{}

/// The start of an image whose entry is a multiple of 4 is one that a `Start` may have.
pub fn start_is_sound()
    ensures { (image : Image) (stack : ℕ) → image.entry % 4 ≡ 0 → IsLayout (start_of image stack) }
{}

/// No region of a start goes directly before one that may be accessed in the same ways.
pub fn start_is_joined()
    ensures { (image : Image) (stack : ℕ) → IsJoined (start_of image stack).regions }
{}

/// Regions that rise and are joined are known by the permissions that they give: they are the
/// ones that `regions_of` makes of these.
pub fn one_regions()
    ensures { (rs : List Region) (f : ℕ → Permission) → AreRegions 0 rs → IsJoined rs
        → ((page : ℕ) → page < page_limit → permission_in rs page ≡ f page)
        → rs ≡ regions_of f 0 page_limit }
{}
