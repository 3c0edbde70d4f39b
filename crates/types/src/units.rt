// Sectors, blocks, and the limits of disks and mounts.
ghost use Rattle.std.specs.Prelude.{◌≡◌, true, ◌≤◌, ◌^◌};
ghost use Rattle.types.specs.Blocks.{good_block, block_sectors, bytes_of, on_block, ends_in_reach};

pub const SECTOR_BYTES: u64 = 512;

// A block is one of two.
pub const SMALL_BLOCK: u64 = 512;

pub const LARGE_BLOCK: u64 = 4096;

const LARGE_BLOCK_SECTORS: u64 = 8;

// 2 ^ 40: every zone and every file ends by this sector.
pub const LAST_SECTOR: u64 = 1099511627776;

// The most zones of a report.
pub const MOST_ZONES: usize = 65536;

// The most files of a kind.
pub const MOST_FILES: u32 = 65535;

pub fn good_block(block: u64) -> bool
    ensures { result ≡ good_block block }
{
    (block == SMALL_BLOCK) | (block == LARGE_BLOCK)
}

// The block in sectors.
pub fn block_sectors(block: u64) -> u64
    ensures { result ≡ block_sectors block }
{
    block / SECTOR_BYTES
}

// The bytes of so many sectors.
pub fn bytes_of(sectors: u64) -> u64
    requires { sectors ≤ 2 ^ 50 }
    ensures { result ≡ bytes_of sectors }
{
    sectors * SECTOR_BYTES
}

// On a block, of a number of bytes. With both blocks written out, no number is divided by one that only the run knows.
pub fn on_block(block: u64, n: u64) -> bool
    requires { good_block block ≡ true }
    ensures { result ≡ on_block block n }
{
    if block == SMALL_BLOCK {
        n % SMALL_BLOCK == 0
    } else {
        n % LARGE_BLOCK == 0
    }
}

// The same of a number of sectors: a small block is one of them.
pub fn sectors_on_block(block: u64, n: u64) -> bool
    requires { good_block block ≡ true }
    ensures { result ≡ on_block (block_sectors block) n }
{
    (block == SMALL_BLOCK) | (n % LARGE_BLOCK_SECTORS == 0)
}

// So many sectors from `start` end in time. Compared with what is left up to the last sector, so that no sum wraps.
pub fn ends_in_reach(start: u64, sectors: u64) -> bool
    ensures { result ≡ ends_in_reach start sectors }
{
    if start <= LAST_SECTOR {
        sectors <= LAST_SECTOR - start
    } else {
        false
    }
}
