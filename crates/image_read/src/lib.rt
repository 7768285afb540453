//! An image as a whole, read through its log: its parts block by block, its files one by one, what is counted of them
//! all, and laws on the one tree that such an image can stand for.
#![tactic(auto)]

mod counts;
mod files;
mod image_counts;
mod image_laws;
mod logged_image;
mod parts;

pub use counts::{Links, are_linked, count_names, meet_blocks};
pub use files::{is_zero_past, read_directory, read_numbers, read_pointers};
pub use image_counts::{Named, Owners, furthest_of};
pub use image_laws::{
    a_file_of_an_image_is_sound_by_itself, a_reached_directory_is_reached_soon,
    a_whole_image_stands_for_its_tree, an_image_has_one_tree, an_image_of_a_tree_is_whole,
    names_are_those_of_slots, owners_decide_the_marks, what_is_owned_is_used_and_fits,
};
pub use logged_image::Overlay;
pub use parts::{PartFault, are_marked, read_table};
