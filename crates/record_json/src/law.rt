//! The law that lines are objects.
ghost use Rattle.record_json.specs.JsonLaw.{AreObjectLines};

/// In the line of each item JSON is read, namely its object.
pub fn law_of_objects()
    ensures { AreObjectLines }
{}
