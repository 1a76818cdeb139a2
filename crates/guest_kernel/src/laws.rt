//! What holds of every generated image, on the definitions alone.
ghost use Rattle.std.specs.Prelude.{ℕ, ◌≡◌, ◌≤◌, ◌+◌, ◌*◌, length};
ghost use Rattle.cloak_base.specs.Constants.{largest_bundle};
ghost use Rattle.cloak_model.specs.Bundle.{IsInGrammar, bundle_bytes};
ghost use Rattle.guest_kernel.specs.Drawing.{program_count};
ghost use Rattle.guest_kernel.specs.Generated.{generated};

/// Each number's image is in the grammar of bundles, and its file of version 2 has this length, which is not too
/// long. It does nothing: its contract is the law.
pub fn law_of_generated_images()
    ensures in_grammar { (n : ℕ) → IsInGrammar (generated n) }
    ensures length { (n : ℕ) → length (bundle_bytes 2 (generated n)) ≡ 262920 + 4124 * program_count n }
    ensures fits { (n : ℕ) → length (bundle_bytes 2 (generated n)) ≤ largest_bundle }
{}
