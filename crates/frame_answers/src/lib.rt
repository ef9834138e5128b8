// frame_answers: the rules' numbers of what the framers answer, and the length that a take of the ported one returns.
// It keeps nothing and decides nothing: whoever refuses says which answer it is.
#![tactic(auto)]

ghost use Rattle.std.specs.Prelude.{◌≡◌};
ghost use Rattle.frame_parser_rules.specs.Framer.{number_of_parser, length_returned};
ghost use Rattle.frame_hunter_rules.specs.Bytes.{number_of_hunter};

#[tactic(auto, unfolding(frame_parser_rules::specs::Framer::number_of_parser))]
pub fn parser_number(answer: frame_parser_rules::Answer) -> u32
    ensures { result ≡ number_of_parser answer }
{
    match answer {
        frame_parser_rules::Answer::Accepted => 0,
        frame_parser_rules::Answer::Message(_) => 0,
        frame_parser_rules::Answer::OverLong => 20,
        frame_parser_rules::Answer::ShortOutput => 23,
        frame_parser_rules::Answer::StoreFull => 25,
        frame_parser_rules::Answer::AfterEnd => 26,
        frame_parser_rules::Answer::BadStore => 27,
    }
}

// The length that a take returns, and 0 for every other answer.
#[tactic(auto, unfolding(frame_parser_rules::specs::Framer::length_returned))]
pub fn parser_length(answer: frame_parser_rules::Answer) -> usize
    ensures { result ≡ length_returned answer }
{
    match answer {
        frame_parser_rules::Answer::Message(length) => length,
        frame_parser_rules::Answer::Accepted => 0,
        frame_parser_rules::Answer::OverLong => 0,
        frame_parser_rules::Answer::ShortOutput => 0,
        frame_parser_rules::Answer::StoreFull => 0,
        frame_parser_rules::Answer::AfterEnd => 0,
        frame_parser_rules::Answer::BadStore => 0,
    }
}

#[tactic(auto, unfolding(frame_hunter_rules::specs::Bytes::number_of_hunter))]
pub fn hunter_number(answer: frame_hunter_rules::Answer) -> u32
    ensures { result ≡ number_of_hunter answer }
{
    match answer {
        frame_hunter_rules::Answer::Fine => 0,
        frame_hunter_rules::Answer::OutputShort => 23,
        frame_hunter_rules::Answer::StoreFull => 25,
        frame_hunter_rules::Answer::AfterEnd => 26,
        frame_hunter_rules::Answer::BadStore => 27,
    }
}
