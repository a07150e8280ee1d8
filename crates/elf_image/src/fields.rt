ghost use Rattle.std.specs.Prelude.{◌≡◌, ◌+◌, ◌≤◌, length};
ghost use Rattle.elf_image.specs.Fields.{half_at, word_at, file_type, machine, entry_of, headers_place, flags, header_size, header_count};

/// The length of the file header.
pub const FILE_HEADER: usize = 52;

pub fn half_at(bytes: &[u8], place: usize) -> u16
    requires { place + 2 ≤ length bytes.now }
    ensures { result ≡ half_at bytes.now place }
{
    u16::from_le_bytes([bytes[place], bytes[place + 1]])
}

pub fn word_at(bytes: &[u8], place: usize) -> u32
    requires { place + 4 ≤ length bytes.now }
    ensures { result ≡ word_at bytes.now place }
{
    u32::from_le_bytes([
        bytes[place],
        bytes[place + 1],
        bytes[place + 2],
        bytes[place + 3],
    ])
}

/// e_type.
pub fn file_type(bytes: &[u8]) -> u16
    requires { 52 ≤ length bytes.now }
    ensures { result ≡ file_type bytes.now }
{
    half_at(bytes, 16)
}

/// e_machine.
pub fn machine(bytes: &[u8]) -> u16
    requires { 52 ≤ length bytes.now }
    ensures { result ≡ machine bytes.now }
{
    half_at(bytes, 18)
}

/// e_entry.
pub fn entry_of(bytes: &[u8]) -> u32
    requires { 52 ≤ length bytes.now }
    ensures { result ≡ entry_of bytes.now }
{
    word_at(bytes, 24)
}

/// e_phoff.
pub fn headers_place(bytes: &[u8]) -> u32
    requires { 52 ≤ length bytes.now }
    ensures { result ≡ headers_place bytes.now }
{
    word_at(bytes, 28)
}

/// e_flags.
pub fn flags(bytes: &[u8]) -> u32
    requires { 52 ≤ length bytes.now }
    ensures { result ≡ flags bytes.now }
{
    word_at(bytes, 36)
}

/// e_phentsize.
pub fn header_size(bytes: &[u8]) -> u16
    requires { 52 ≤ length bytes.now }
    ensures { result ≡ header_size bytes.now }
{
    half_at(bytes, 42)
}

/// e_phnum.
pub fn header_count(bytes: &[u8]) -> u16
    requires { 52 ≤ length bytes.now }
    ensures { result ≡ header_count bytes.now }
{
    half_at(bytes, 44)
}
