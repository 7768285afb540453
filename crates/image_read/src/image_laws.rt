//! Laws on an image as a whole: the one tree that it can stand for, and what has to hold of its parts for it to.

mod whole_image;

pub use whole_image::{
    a_file_of_an_image_is_sound_by_itself, a_reached_directory_is_reached_soon,
    a_whole_image_stands_for_its_tree, an_image_has_one_tree, an_image_of_a_tree_is_whole,
    names_are_those_of_slots, owners_decide_the_marks, what_is_owned_is_used_and_fits,
};
