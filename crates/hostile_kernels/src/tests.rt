use crate::images::{
    answers_too_much, changes_running_code, exchanges_blocks, flips_a_bit, forks_over_one_frame,
    gives_a_frame_on, interrupts_every_byte, lays_a_superpage, lays_the_area_over_a_page,
    maps_a_page_over_its_table, maps_one_frame_three_times, maps_two_pages_to_one_frame,
    passes_a_context_around, reads_along, reads_back_an_old_page, reads_every_frame,
    remaps_without_a_fence, resumes_under_another_table, resumes_what_ended,
    resumes_what_never_was, resumes_what_runs, sets_sum_and_mxr, shows_a_page_to_another,
    swaps_honestly,
};
use crate::shared::{CALLS, CALLS_TEXT};
use crate::*;
use guest_bundle::write;
use rv_asm::assemble;
use std::alloc::Global;
use std::test::*;

/// Each text with the table of its words.
static TEXTS: [(&str, &[u32]); 39] = [
    (answers_too_much::KERNEL_TEXT, answers_too_much::KERNEL),
    (answers_too_much::PROGRAM_TEXT, answers_too_much::PROGRAM),
    (
        changes_running_code::KERNEL_TEXT,
        changes_running_code::KERNEL,
    ),
    (
        changes_running_code::PROGRAM_TEXT,
        changes_running_code::PROGRAM,
    ),
    (exchanges_blocks::KERNEL_TEXT, exchanges_blocks::KERNEL),
    (flips_a_bit::KERNEL_TEXT, flips_a_bit::KERNEL),
    (
        forks_over_one_frame::KERNEL_TEXT,
        forks_over_one_frame::KERNEL,
    ),
    (
        forks_over_one_frame::PROGRAM_TEXT,
        forks_over_one_frame::PROGRAM,
    ),
    (gives_a_frame_on::KERNEL_TEXT, gives_a_frame_on::KERNEL),
    (gives_a_frame_on::LEAVER_TEXT, gives_a_frame_on::LEAVER),
    (gives_a_frame_on::HEIR_TEXT, gives_a_frame_on::HEIR),
    (
        interrupts_every_byte::KERNEL_TEXT,
        interrupts_every_byte::KERNEL,
    ),
    (
        interrupts_every_byte::PROGRAM_TEXT,
        interrupts_every_byte::PROGRAM,
    ),
    (lays_a_superpage::KERNEL_TEXT, lays_a_superpage::KERNEL),
    (lays_a_superpage::READER_TEXT, lays_a_superpage::READER),
    (
        lays_the_area_over_a_page::KERNEL_TEXT,
        lays_the_area_over_a_page::KERNEL,
    ),
    (
        lays_the_area_over_a_page::PROGRAM_TEXT,
        lays_the_area_over_a_page::PROGRAM,
    ),
    (
        maps_a_page_over_its_table::KERNEL_TEXT,
        maps_a_page_over_its_table::KERNEL,
    ),
    (
        maps_a_page_over_its_table::PROGRAM_TEXT,
        maps_a_page_over_its_table::PROGRAM,
    ),
    (
        maps_one_frame_three_times::KERNEL_TEXT,
        maps_one_frame_three_times::KERNEL,
    ),
    (
        maps_one_frame_three_times::PROGRAM_TEXT,
        maps_one_frame_three_times::PROGRAM,
    ),
    (
        maps_two_pages_to_one_frame::KERNEL_TEXT,
        maps_two_pages_to_one_frame::KERNEL,
    ),
    (
        maps_two_pages_to_one_frame::PROGRAM_TEXT,
        maps_two_pages_to_one_frame::PROGRAM,
    ),
    (
        passes_a_context_around::KERNEL_TEXT,
        passes_a_context_around::KERNEL,
    ),
    (reads_along::KERNEL_TEXT, reads_along::KERNEL),
    (
        reads_back_an_old_page::KERNEL_TEXT,
        reads_back_an_old_page::KERNEL,
    ),
    (reads_every_frame::KERNEL_TEXT, reads_every_frame::KERNEL),
    (
        remaps_without_a_fence::KERNEL_TEXT,
        remaps_without_a_fence::KERNEL,
    ),
    (
        resumes_under_another_table::KERNEL_TEXT,
        resumes_under_another_table::KERNEL,
    ),
    (resumes_what_ended::KERNEL_TEXT, resumes_what_ended::KERNEL),
    (
        resumes_what_ended::PROGRAM_TEXT,
        resumes_what_ended::PROGRAM,
    ),
    (
        resumes_what_never_was::KERNEL_TEXT,
        resumes_what_never_was::KERNEL,
    ),
    (resumes_what_runs::KERNEL_TEXT, resumes_what_runs::KERNEL),
    (sets_sum_and_mxr::KERNEL_TEXT, sets_sum_and_mxr::KERNEL),
    (sets_sum_and_mxr::PROGRAM_TEXT, sets_sum_and_mxr::PROGRAM),
    (
        shows_a_page_to_another::KERNEL_TEXT,
        shows_a_page_to_another::KERNEL,
    ),
    (swaps_honestly::KERNEL_TEXT, swaps_honestly::KERNEL),
    (swaps_honestly::PROGRAM_TEXT, swaps_honestly::PROGRAM),
    (CALLS_TEXT, CALLS),
];

/// The words of a text that is not very long.
fn assembled(alloc: Global, text: &str) -> Option<Vec<u32>> {
    if text.len() > 100_000 {
        return None;
    }
    assemble(alloc, text).ok()
}

#[test]
fn the_texts_make_the_tables(rt: HostRuntime) {
    for (text, words) in TEXTS {
        let made = assembled(rt.alloc(), text);
        assert_eq!(rt; made.as_deref(), Some(words), "{text}");
    }
}

/// How long the file of an image is.
fn file_length(alloc: Global, number: u32) -> Option<usize> {
    if number >= IMAGES {
        return None;
    }
    let image = hostile(alloc, number).ok()?;
    Some(write(alloc, &image).ok()?.len())
}

/// The lengths follow from the numbers of words, pages and blocks: a header of 40 bytes with one for each turn, 8 for
/// each segment, 24 for each program.
static LENGTHS: [(u32, usize); 4] = [(0, 4213), (2, 8337), (8, 4233), (11, 81)];

#[test]
fn files_of_images(rt: HostRuntime) {
    for (number, length) in LENGTHS {
        assert_eq!(rt; file_length(rt.alloc(), number), Some(length), "{number}");
    }
}
