// An image, and a shelf, as a file: written, read, and read back the same. docs/FORMATS.md describes both kinds.
//
// Below stand the definitions and laws of `lists`. What the words of an image or a shelf mean is not looked at here.
#![tactic(auto)]

pub mod file;
pub mod image_file;
pub mod shelf_file;
mod words;
