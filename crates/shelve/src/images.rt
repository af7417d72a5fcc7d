// One image file: read, linked, and what became of it.
use formats::file::Fault;
use formats::image_file;
use image::imports;
use image::schema::Image;
use image::shelf::Used;
use image::verdict::Refused;
use link::link as linker;
use shelf_io::arguments::read_word;
use shelf_io::files::{Cause, LoadError};
use shelf_io::{files, say, sentences};
use std::rt::{Env, Files};
use tokens::front;

// Why an image is not on the shelf: its file was not read, or is no image file, or the image is refused at a place.
#[derive(Clone, Copy)]
pub enum NotLinked {
    Unread(Cause),
    NoImage(Fault),
    Refused(Refused),
}

impl From<Refused> for NotLinked {
    fn from(refused: Refused) -> NotLinked {
        NotLinked::Refused(refused)
    }
}

impl From<Fault> for NotLinked {
    fn from(fault: Fault) -> NotLinked {
        NotLinked::NoImage(fault)
    }
}

impl From<LoadError> for NotLinked {
    fn from(error: LoadError) -> NotLinked {
        match error {
            LoadError::TooLong => NotLinked::NoImage(Fault::TooLong),
            LoadError::Unread(cause) => NotLinked::Unread(cause),
        }
    }
}

fn tell(rt: &impl Print, error: NotLinked) {
    match error {
        NotLinked::Unread(cause) => {
            sentences::tell_unread(rt, cause);
        }
        NotLinked::NoImage(fault) => {
            say::text(rt, b"not an image file (");
            sentences::tell_fault(rt, fault);
            say::text(rt, b")");
        }
        NotLinked::Refused(refused) => {
            sentences::tell_refusal(rt, refused);
        }
    }
}

// Links an image, and says as which file it is accepted. The answer is the shelf's numbers then.
fn link_image(
    rt: &impl Print,
    words: &mut [u32],
    bytes: &mut [u8],
    image: &[u32],
    pool: &[u8],
    used: Used,
) -> Result<Used, NotLinked> {
    let after = linker::link(words, bytes, used, image, pool)?;
    let name = imports::file_name(&Image::read(image, pool));
    say::text(rt, b"accepted as ");
    sentences::tell_file(rt, used.files, name);
    Ok(after)
}

fn link_file(
    rt: &impl Print,
    file: &[u8],
    words: &mut [u32],
    bytes: &mut [u8],
    used: Used,
) -> Result<Used, NotLinked> {
    let mut image = [0u32; 65536];
    let mut pool = [0u8; 32768];
    let sizes = image_file::read_image(file, &mut image, &mut pool)?;
    link_image(
        rt,
        words,
        bytes,
        front(&image, sizes.words as usize),
        front(&pool, sizes.bytes as usize),
        used,
    )
}

fn read_and_link(
    rt: &(impl Files + Print),
    path: &[u8],
    words: &mut [u32],
    bytes: &mut [u8],
    file: &mut [u8],
    used: Used,
) -> Result<Used, NotLinked> {
    let n = files::read_whole(rt, path, file)?;
    link_file(rt, front(file, n), words, bytes, used)
}

// Links the image file that word `i` names, and says what became of it.
pub fn link_named(
    rt: &(impl Env + Files + Print),
    i: usize,
    words: &mut [u32],
    bytes: &mut [u8],
    file: &mut [u8],
    used: Used,
) -> Result<Used, NotLinked> {
    let mut buffer = io::buffer();
    let n = read_word(rt, i, &mut buffer);
    let path = front(&buffer, n);
    say::text(rt, path);
    say::text(rt, b": ");
    let linked = read_and_link(rt, path, words, bytes, file, used);
    if let Err(error) = linked {
        tell(rt, error);
    }
    linked
}
