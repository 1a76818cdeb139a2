//! What a caller knows of a file's items when it reads one after another.
ghost use Rattle.record_reader.specs.InOrder.{RecordIsRead, FaultIsRead};

/// The laws of reading: it does nothing, its contract is the laws.
pub fn law_of_reading()
    ensures record { RecordIsRead }
    ensures fault { FaultIsRead }
{}
