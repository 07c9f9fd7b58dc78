// The numbers of the index. Their twins are in specs/Inner/Codes.antt.
ghost use Rattle.std.specs.Prelude.{◌≡◌, ◌<◌};
ghost use Rattle.plan_index.specs.Inner.Codes.{type_codes, key_code, item_code};

// A key is a class and a type: TYPE_CODES times the first and the second.
pub const TYPE_CODES: u32 = 4096;

// The code of an item is the type in whose block it goes and a key: KEY_CODES times the first and the second.
pub const KEY_CODES: u32 = 32 * TYPE_CODES;

// The numbers of records lie below it: one more than the most records of a policy.
pub const RECORD_NUMBERS: usize = 4096;

// How many items there are at most: two for each record, and as many as are sorted.
pub use sorting::ITEMS;

// The code of an item in the block of `own`, by its class and the other type.
pub fn item_code(own: u32, class: u32, other: u32) -> u32
    requires { (own < type_codes) × (class < 32) × (other < type_codes) }
    ensures { result ≡ item_code own (key_code class other) }
{
    KEY_CODES * own + (TYPE_CODES * class + other)
}
