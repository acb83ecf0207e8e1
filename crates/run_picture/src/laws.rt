//! What holds of the marks of every run.

ghost use Rattle.run_picture.specs.Counts.{ArrowsAreDeliveries, TellsEachPacket};

/// The packets that the marks of a run tell as sent are the packets of the world, in order and each once, with sender and
/// addressee; and the arrows are the deliveries that the run made, in order.
pub fn marks_are_the_runs()
    ensures packets { TellsEachPacket }
    ensures arrows { ArrowsAreDeliveries }
{}
