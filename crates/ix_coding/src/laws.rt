//! What holds of the bytes of fields.

ghost use Rattle.ix_coding.specs.Spelling.{byte, four, eight, signed, flag, string, option, IsShort, IsShortOption, Is8, Is32, Is64};
ghost use Rattle.ix_coding.specs.Spelling.{IsSigned64, Always, HasOneFront};
ghost use Rattle.ix_coding.specs.Reading.{byte_at, four_at, eight_at, signed_at, flag_at, string_at, option_at, ReadsBack};

/// What is spelled is read back, whatever follows it.
pub fn read_back()
    ensures byte { ReadsBack Is8 byte byte_at }
    ensures four { ReadsBack Is32 four four_at }
    ensures eight { ReadsBack Is64 eight eight_at }
    ensures signed { ReadsBack IsSigned64 signed signed_at }
    ensures flag { ReadsBack Always flag flag_at }
    ensures string { ReadsBack IsShort string string_at }
    ensures option { ReadsBack IsShortOption (option string) (option_at string_at) }
{}

/// No spelling of a field is a proper prefix of another, and no two values have the same: so the
/// bytes before the next field are known without a mark between the two.
pub fn one_front()
    ensures byte { HasOneFront Is8 byte }
    ensures four { HasOneFront Is32 four }
    ensures eight { HasOneFront Is64 eight }
    ensures signed { HasOneFront IsSigned64 signed }
    ensures flag { HasOneFront Always flag }
    ensures string { HasOneFront IsShort string }
    ensures option { HasOneFront IsShortOption (option string) }
{}
