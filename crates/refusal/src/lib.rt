// Why an input is refused: by name, with what each carries. The number of each stands in
// specs/Refusal.antt, and `number` and `carried` answer it.

#![tactic(auto)]

ghost use Rattle.std.specs.Prelude.{◌≡◌};
ghost use Rattle.refusal.specs.Refusal.{field_number, number_of, carried_by};
ghost use Rattle.refusal.specs.Rows.{RowOf};

// A field of a record that has fewer bits on the wire than its type has.
#[derive(Clone, Copy, PartialEq, Eq)]
pub enum Field {
    Sequence,
    Message,
    KeyFlags,
    HandshakeFlags,
    GroupFlags,
}

// A new one is a line here and in `row`, in both tables of specs/Refusal.antt and in proofs/Laws.antt.
#[derive(Clone, Copy, PartialEq, Eq)]
pub enum Refusal {
    // Fewer bytes than the part needs.
    NotEnoughData,
    // The first bit says that this is a control packet.
    ControlBit,
    // Both key bits of a data packet are set; they stand as 0x18.
    BadDataEncryption(u8),
    // The version of a key message is not 1, or its top bit is set.
    BadSrtExtensionMessage,
    BadKeyPacketType(u8),
    BadKeySign(u16),
    BadCipherKind(u8),
    BadAuth(u8),
    BadStreamEncapsulation(u8),
    StreamEncapsulationNotSrt,
    // A key length in bytes that is not 16, 24 or 32.
    BadCryptoLength(u32),
    UnsupportedSrtExtensionType(u16),
    // A text or filter type, which later versions read.
    LaterType(u16),
    // Longer than the limit, which it carries.
    TooLong(usize),
    // The place of a number that is 2^31 or more.
    NotSequence(usize),
    // The place of a number that its predecessor is not Less than.
    NotIncreasing(usize),
    // The place of a range's start with no word after it.
    OpenRange(usize),
    // The place of a range's end that is itself flagged.
    FlaggedEnd(usize),
    // The place of a range's end that the start is not Less than.
    BackwardRange(usize),
    // The place of the item whose end takes the total past the limit.
    TooManyNumbers(usize),
    // The length that is needed, in words or bytes.
    NoRoom(usize),
    FieldTooWide(Field),
    // Key flags 0: the message holds no key.
    NoKey,
    BadSaltLength(usize),
    BadWrapLength(usize),
    // The most whole lines from the top of a sheet that some accepted sheet begins with.
    BadSheet(usize),
    // A sheet of an edition that is not read: its number, 0 where that has more than 32 bits.
    SheetEdition(u32),
    // The place of an item with a number that does not stand 0 to 2^30 - 1 steps after the oldest.
    OutsideWindow(usize),
}

impl Field {
    // What 22 carries.
    // A number of the table below, as a row has it.
    fn number(self) -> usize
        ensures { result ≡ field_number self }
    {
        match self {
            Field::Sequence => 1,
            Field::Message => 2,
            Field::KeyFlags => 3,
            Field::HandshakeFlags => 4,
            Field::GroupFlags => 5,
        }
    }
}

// A row of the table of RULES 7.1: a refusal's number, and what it carries.
#[derive(Clone, Copy)]
struct Row(u64, usize);

impl Refusal {
    // The refusal's number.
    pub fn number(self) -> u64
        ensures { result ≡ number_of self }
    {
        self.row().0
    }

    // What the refusal carries.
    pub fn carried(self) -> u64
        ensures { result ≡ carried_by self }
    {
        self.row().1 as u64
    }

    // By `as` throughout: 32 bits have no From to usize.
    fn row(self) -> Row
        ensures { RowOf self result.0 result.1 }
    {
        match self {
            Refusal::NotEnoughData => Row(1, 0),
            Refusal::ControlBit => Row(2, 0),
            Refusal::BadDataEncryption(bits) => Row(3, bits as usize),
            Refusal::BadSrtExtensionMessage => Row(4, 0),
            Refusal::BadKeyPacketType(bits) => Row(5, bits as usize),
            Refusal::BadKeySign(sign) => Row(6, sign as usize),
            Refusal::BadCipherKind(byte) => Row(7, byte as usize),
            Refusal::BadAuth(byte) => Row(8, byte as usize),
            Refusal::BadStreamEncapsulation(byte) => Row(9, byte as usize),
            Refusal::StreamEncapsulationNotSrt => Row(10, 0),
            Refusal::BadCryptoLength(bytes) => Row(11, bytes as usize),
            Refusal::UnsupportedSrtExtensionType(kind) => Row(12, kind as usize),
            Refusal::LaterType(kind) => Row(13, kind as usize),
            Refusal::TooLong(limit) => Row(14, limit),
            Refusal::NotSequence(place) => Row(15, place),
            Refusal::NotIncreasing(place) => Row(16, place),
            Refusal::OpenRange(place) => Row(17, place),
            Refusal::FlaggedEnd(place) => Row(18, place),
            Refusal::BackwardRange(place) => Row(19, place),
            Refusal::TooManyNumbers(place) => Row(20, place),
            Refusal::NoRoom(needed) => Row(21, needed),
            Refusal::FieldTooWide(field) => Row(22, field.number()),
            Refusal::NoKey => Row(23, 0),
            Refusal::BadSaltLength(length) => Row(24, length),
            Refusal::BadWrapLength(length) => Row(25, length),
            Refusal::BadSheet(lines) => Row(26, lines),
            Refusal::SheetEdition(edition) => Row(27, edition as usize),
            Refusal::OutsideWindow(place) => Row(29, place),
        }
    }
}
