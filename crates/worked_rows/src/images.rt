ghost use Rattle.worked_rows.specs.ImageRows as row;

/// The words of the images that the other rows run.
pub fn rows_of_images()
    ensures { row.ImageWords }
{}
