// What is promised of reading and writing a function file. The bodies do nothing: the contracts are what counts.
ghost use Rattle.format.specs.Longest.{WordsAreBounded, BytesAreBounded};
ghost use Rattle.format.specs.Readable.{WordsAreRead, BytesAreRead, OnlyReadable, OnlyHeld};
ghost use Rattle.format.specs.Refusals.{FirstNoIsTold};
ghost use Rattle.format.specs.RoundTrip.{WordsComeBack, BytesComeBack, SlotsAreCounted, ReadIsWithin};

// A file that is read is written as it was, word for word.
pub fn a_file_read_is_written_as_it_was() -> u8
    ensures { WordsComeBack }
{
    0
}

// And byte for byte.
pub fn its_bytes_are_written_as_they_were() -> u8
    ensures { BytesComeBack }
{
    0
}

// The slots that are counted over the sections are those that the function takes.
pub fn reading_counts_the_slots() -> u8
    ensures { SlotsAreCounted }
{
    0
}

// What is read is within the limits.
pub fn what_is_read_is_within_the_limits() -> u8
    ensures { ReadIsWithin }
{
    0
}

// What is written of a function within the limits is read as that function, so nothing good is refused.
pub fn what_is_written_within_the_limits_is_read() -> u8
    ensures { WordsAreRead }
{
    0
}

// And so are its bytes, where a file holds them.
pub fn its_bytes_are_read() -> u8
    ensures { BytesAreRead }
{
    0
}

// No other function is read from words.
pub fn only_functions_within_the_limits_are_read() -> u8
    ensures { OnlyReadable }
{
    0
}

// And none from bytes.
pub fn only_what_a_file_holds_is_read() -> u8
    ensures { OnlyHeld }
{
    0
}

// A refusal tells the first question whose answer is no: the length, the pairs word by word, and only then the sections.
pub fn a_refusal_tells_the_first_no() -> u8
    ensures { FirstNoIsTold }
{
    0
}

// A file is no longer than the slots of its function allow.
pub fn a_file_is_as_long_as_its_slots_allow() -> u8
    ensures { WordsAreBounded }
{
    0
}

// So a buffer of 341,040 bytes holds the file of every function within the limits, though such a file may be too long to be read.
pub fn a_buffer_of_341040_bytes_holds_every_file() -> u8
    ensures { BytesAreBounded }
{
    0
}
