// Tables from bytes and into bytes.
ghost use Rattle.std.specs.Prelude.{◌≡◌, ◌*◌, ◌<◌, ◌≤◌, ℕ, List, length};
ghost use Rattle.std.proofs.Common.{lit<, lit≤};
ghost use Rattle.codec.specs.Tables.{table_in, table_bytes, number, signed_number, digits_2, digits_8, bit_digits, exact_2, exact_8, exact_bits};
ghost use Rattle.codec.specs.Bytes.{signed, over};

// An entry of N bytes, the lowest first.
pub trait Entry<const N: usize>: Copy {
    ghost decode: { List ℕ → Self };

    ghost encode: { Self → List ℕ };

    fn from_bytes(bytes: [u8; N]) -> Self
        ensures { result ≡ decode bytes.entry };

    fn to_bytes(self) -> [u8; N]
        ensures { result ≡ encode self };

    ghost exact: { (x : Self) → length (encode x) ≡ N };

    ghost wide: { (0 < N) × (N ≤ 8) };
}

// A number of 16 bits as a signed one, in two's complement; by hand, since its edit names the constant.
fn signed_of(number: u16) -> i16
    ensures { result ≡ signed number }
{
    if number < 32768 {
        return number as i16;
    }
    -1 - ((65535 - number) as i16)
}

impl Entry<2> for i16 {
    ghost decode = { signed_number };

    ghost encode = { bit_digits };

    ghost exact = { exact_bits };

    ghost wide = { (lit< tt, lit≤ tt) };

    fn from_bytes(bytes: [u8; 2]) -> i16
        ensures { result ≡ signed_number bytes }
    {
        signed_of(u16::from_le_bytes(bytes))
    }

    fn to_bytes(self) -> [u8; 2] {
        self.to_le_bytes()
    }
}

impl Entry<2> for u16 {
    ghost decode = { number };

    ghost encode = { digits_2 };

    ghost exact = { exact_2 };

    ghost wide = { (lit< tt, lit≤ tt) };

    fn from_bytes(bytes: [u8; 2]) -> u16
        ensures { result ≡ number bytes }
    {
        u16::from_le_bytes(bytes)
    }

    fn to_bytes(self) -> [u8; 2] {
        self.to_le_bytes()
    }
}

impl Entry<8> for u64 {
    ghost decode = { number };

    ghost encode = { digits_8 };

    ghost exact = { exact_8 };

    ghost wide = { (lit< tt, lit≤ tt) };

    fn from_bytes(bytes: [u8; 8]) -> u64
        ensures { result ≡ number bytes }
    {
        u64::from_le_bytes(bytes)
    }

    fn to_bytes(self) -> [u8; 8] {
        self.to_le_bytes()
    }
}

// The entries that stand at the front of some bytes, as many as the table has.
pub fn read_table<T: Entry<N>, const N: usize>(table: &mut [T], bytes: &[u8])
    requires { N * length table.old ≤ length bytes.now }
    ensures { table.new ≡ table_in T.decode N (length table.old) bytes.now }
{
    let (chunks, _) = bytes.as_chunks::<N>();
    for (i, entry) in table.iter_mut().enumerate() {
        *entry = T::from_bytes(chunks[i]);
    }
}

// The bytes of a table, at the front of a buffer.
pub fn write_table<T: Entry<N>, const N: usize>(bytes: &mut [u8], table: &[T])
    requires { N * length table.now ≤ length bytes.old }
    ensures { bytes.new ≡ over (table_bytes T.encode table.now) bytes.old }
{
    for (i, entry) in table.iter().enumerate() {
        let at = N * i;
        bytes[at..at + N].copy_from_slice(&entry.to_bytes());
    }
}
