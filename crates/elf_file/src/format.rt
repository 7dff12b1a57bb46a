//! The numbers of the format (System V ABI, "ELF Header" and "Program Header").

/// The bytes of an ELF header.
pub const HEADER_SIZE: u32 = 52;

/// The bytes of a program header.
pub const PROGRAM_HEADER_SIZE: u32 = 32;

/// Where the first word of a program stands in its file.
pub const CODE_OFFSET: u32 = HEADER_SIZE + PROGRAM_HEADER_SIZE;

/// Where it stands in memory.
pub const CODE_START: u32 = 0x10054;

/// `e_ident`: the magic number, 32 bits, little endian, version 1.
pub const IDENT: [u8; 16] = [0x7F, b'E', b'L', b'F', 1, 1, 1, 0, 0, 0, 0, 0, 0, 0, 0, 0];

/// The magic number as a word.
pub const MAGIC: u32 = 0x464C457F;

/// `e_type` of an executable.
pub const EXECUTABLE: u16 = 2;

/// `e_machine` of RISC-V.
pub const RISCV: u16 = 243;

/// `e_version`.
pub const CURRENT: u32 = 1;

/// `p_type` of a segment to be loaded.
pub const LOAD: u32 = 1;

/// The bit of `p_flags` for execution.
pub const EXECUTE: u32 = 1;

/// `p_flags` for reading and execution.
pub const READ_EXECUTE: u32 = 5;

/// `p_align`.
pub const PAGE: u32 = 4096;

/// Where `e_type` stands in an ELF header.
pub const E_TYPE: usize = 16;

/// Where `e_machine` stands in an ELF header.
pub const E_MACHINE: usize = 18;

/// Where `e_entry` stands in an ELF header.
pub const E_ENTRY: usize = 24;

/// Where `e_phoff` stands in an ELF header.
pub const E_PHOFF: usize = 28;

/// Where `e_phentsize` stands in an ELF header.
pub const E_PHENTSIZE: usize = 42;

/// Where `e_phnum` stands in an ELF header.
pub const E_PHNUM: usize = 44;

/// Where `p_offset` stands in a program header.
pub const P_OFFSET: usize = 4;

/// Where `p_vaddr` stands in a program header.
pub const P_VADDR: usize = 8;

/// Where `p_filesz` stands in a program header.
pub const P_FILESZ: usize = 16;

/// Where `p_memsz` stands in a program header.
pub const P_MEMSZ: usize = 20;

/// Where `p_flags` stands in a program header.
pub const P_FLAGS: usize = 24;
