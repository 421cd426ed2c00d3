//! The law of printing and reading.

ghost use Rattle.fc_parser.specs.RoundTrip.{EachReading, NeverStops, RefusesNothing, RoundTrip, SameProgram};

/// The canonical text of a program is read as this program, where it passes no limit.
pub fn round_trip()
    ensures read_back { RoundTrip }
    ensures each_reading { EachReading }
    ensures never_stops { NeverStops }
    ensures same_program { SameProgram }
    ensures refuses_nothing { RefusesNothing }
{
    fc_lexer::reads_back();
    fc_lexer::one_reading();
}
