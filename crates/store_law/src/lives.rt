//! Laws on the life of an image, from run to run and from stop to stop. The functions here have them as their
//! contracts.

mod handle_laws;
mod recovery_laws;
mod still;

pub use handle_laws::{
    a_handle_names_one_file_for_good, a_life_counts_up_to_each_crash, a_life_may_go_on,
    each_image_has_its_births, each_tree_has_its_births,
};
pub use recovery_laws::a_stopped_recovery_preserves_the_tree;
pub use still::a_fresh_image_can_be_held;
