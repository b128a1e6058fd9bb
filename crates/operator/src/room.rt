// Room for what a command works with.
ghost use Rattle.std.specs.Prelude.{◌≡◌, length};

// A window's code.
pub fn code() -> [u8; 65536]
    ensures { 65536 ≡ length result }
{
    [0; 65536]
}

// A sheet or a layout, and more.
pub fn sheet() -> [u8; 131072]
    ensures { 131072 ≡ length result }
{
    [0; 131072]
}

// A redo file, and more.
pub fn text() -> [u8; 524288]
    ensures { 524288 ≡ length result }
{
    [0; 524288]
}

// A mark for each bundle of a window.
pub fn marks() -> [u8; 4096]
    ensures { 4096 ≡ length result }
{
    [0; 4096]
}
