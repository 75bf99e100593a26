//! Laws of the definitions. Each function does nothing: its contract is the law.
ghost use Rattle.java_props.specs.Laws.{SomeMeaning, NeverBoth, OneReading, OneRefusal, ReadsBack, SetGives, RefusalsPoint, SetGives, SetKeeps, PairsGive};

/// Each text is read or refused and never both, as one list of pairs or for one reason.
pub fn exactly_one_meaning()
    ensures some { SomeMeaning }
    ensures never_both { NeverBoth }
    ensures one_reading { OneReading }
    ensures one_refusal { OneRefusal }
{}

/// At most 256 pairs of texts, in byte order of distinct keys, are read from their written form of at most 65,536 bytes.
pub fn written_is_read()
    ensures { ReadsBack }
{}

/// A refusal tells the text's length or the place of one of its bytes, which is a backslash where an escape is refused.
pub fn refusals_point_into_the_text()
    ensures { RefusalsPoint }
{}

/// To set a key changes its value alone, and each pair is found by its key.
pub fn pairs_are_a_map()
    ensures gives { SetGives }
    ensures keeps { SetKeeps }
    ensures finds { PairsGive }
{}
