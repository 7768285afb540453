//! What is told of the files of an image, a line a file, and its printing.

mod line;
mod lines;
mod print;
mod shown_files;

pub use line::Line;
pub use lines::read_lines;
pub use print::print_lines;
pub use shown_files::show;
