//! The images, by their numbers.
ghost use Rattle.std.specs.Prelude.{◌≡◌, ◌<◌};
ghost use Rattle.hostile_kernels.specs.Parts.{image_of};
ghost use Rattle.hostile_kernels.specs.Images.{hostile_image};

use crate::draft::Draft;

pub mod answers_too_much;
pub mod changes_running_code;
pub mod exchanges_blocks;
pub mod flips_a_bit;
pub mod forks_over_one_frame;
pub mod gives_a_frame_on;
pub mod interrupts_every_byte;
pub mod lays_a_superpage;
pub mod lays_the_area_over_a_page;
pub mod maps_a_page_over_its_table;
pub mod maps_one_frame_three_times;
pub mod maps_two_pages_to_one_frame;
pub mod passes_a_context_around;
pub mod reads_along;
pub mod reads_back_an_old_page;
pub mod reads_every_frame;
pub mod remaps_without_a_fence;
pub mod resumes_under_another_table;
pub mod resumes_what_ended;
pub mod resumes_what_never_was;
pub mod resumes_what_runs;
pub mod sets_sum_and_mxr;
pub mod shows_a_page_to_another;
pub mod swaps_honestly;

/// How many images there are.
pub const IMAGES: u32 = 24;

/// The image of a number.
pub fn draft(number: u32) -> Draft
    requires { number < IMAGES }
    ensures { image_of result ≡ hostile_image number }
{
    match number {
        0 => flips_a_bit::IMAGE,
        1 => reads_back_an_old_page::IMAGE,
        2 => swaps_honestly::IMAGE,
        3 => resumes_what_runs::IMAGE,
        4 => resumes_under_another_table::IMAGE,
        5 => resumes_what_ended::IMAGE,
        6 => resumes_what_never_was::IMAGE,
        7 => maps_two_pages_to_one_frame::IMAGE,
        8 => maps_a_page_over_its_table::IMAGE,
        9 => remaps_without_a_fence::IMAGE,
        10 => reads_along::IMAGE,
        11 => reads_every_frame::IMAGE,
        12 => forks_over_one_frame::IMAGE,
        13 => lays_the_area_over_a_page::IMAGE,
        14 => answers_too_much::IMAGE,
        15 => shows_a_page_to_another::IMAGE,
        16 => lays_a_superpage::IMAGE,
        17 => interrupts_every_byte::IMAGE,
        18 => passes_a_context_around::IMAGE,
        19 => maps_one_frame_three_times::IMAGE,
        20 => exchanges_blocks::IMAGE,
        21 => sets_sum_and_mxr::IMAGE,
        22 => changes_running_code::IMAGE,
        _ => gives_a_frame_on::IMAGE,
    }
}
