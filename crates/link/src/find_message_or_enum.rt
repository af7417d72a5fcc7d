// A message or an enum of one file by its full name behind a dot, after find_message_or_enum.rs.
ghost use Rattle.std.specs.Prelude.{◌≡◌};
ghost use Rattle.image.specs.Places.{file_of};
ghost use Rattle.link.specs.Resolve.{item_in};

use crate::building::Wanted;
use image::full_name;
use image::rows::Flat;
use image::schema::Image;
use image::shelf::File;
use names::name;

// The package is stripped, and the rest sought as a path.
pub(crate) fn find_item(file: &File, wanted: Wanted, full: &[u8]) -> Option<Flat>
    ensures { result ≡ item_in wanted (file_of file.now) full.now }
{
    let image = Image::read(file.image, file.pool);
    let package = full_name::package_name(&image);
    if !name::lies_beneath(full, package) {
        return None;
    }
    let rest = name::rest_beneath(full, package);
    match wanted {
        Wanted::Message => full_name::find_message(&image, file.links, rest),
        Wanted::Enum => full_name::find_enum(&image, file.links, rest),
    }
}
