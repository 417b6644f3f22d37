//! Small files to damage.

use session::file::open;

/// Two codes at byte 20 and three events at byte 36, 84 bytes. The second event has no price.
pub(crate) const SAMPLE: [u8; 84] = [
    1, 0, 2, 0, 3, 0, 0, 0, 20, 0, 0, 0, 36, 0, 0, 0, 84, 0, 0, 0, //
    136, 198, 250, 0, 1, 0, 0, 0, //
    136, 198, 250, 2, 3, 0, 0, 0, //
    10, 0, 0, 0, 0, 1, 7, 0, 156, 255, 255, 255, 5, 0, 0, 0, //
    10, 0, 0, 0, 1, 0, 0, 0, 0, 0, 0, 0, 0, 0, 0, 0, //
    20, 0, 0, 0, 0, 1, 8, 0, 100, 0, 0, 0, 5, 0, 0, 0,
];

/// The same day with gaps, and its events before its codes: three events at byte 22, two codes at byte 72, 90 bytes.
pub(crate) const TURNED: [u8; 90] = [
    1, 0, 2, 0, 3, 0, 0, 0, 72, 0, 0, 0, 22, 0, 0, 0, 90, 0, 0, 0, //
    255, 255, //
    10, 0, 0, 0, 0, 1, 7, 0, 156, 255, 255, 255, 5, 0, 0, 0, //
    10, 0, 0, 0, 1, 0, 0, 0, 0, 0, 0, 0, 0, 0, 0, 0, //
    20, 0, 0, 0, 0, 1, 8, 0, 100, 0, 0, 0, 5, 0, 0, 0, //
    255, 255, //
    136, 198, 250, 0, 1, 0, 0, 0, //
    136, 198, 250, 2, 3, 0, 0, 0, //
    255, 255,
];

/// Prints what opening the bytes gives.
pub(crate) fn tell(rt: &HostRuntime, what: &str, bytes: &[u8]) -> anyhow::Result<()> {
    match open(bytes) {
        Ok(_) => println!(rt; "{what}: accepted")?,
        Err(fault) => println!(rt; "{what}: {fault}")?,
    }
    Ok(())
}

/// Writes each byte to its place.
pub(crate) fn patch(bytes: &mut [u8], edits: &[(usize, u8)]) {
    for &(at, byte) in edits {
        if let Some(place) = bytes.get_mut(at) {
            *place = byte;
        }
    }
}

/// Prints what opening a sample gives once these bytes of it are changed.
pub(crate) fn with<const LEN: usize>(
    rt: &HostRuntime,
    mut sample: [u8; LEN],
    what: &str,
    edits: &[(usize, u8)],
) -> anyhow::Result<()> {
    patch(&mut sample, edits);
    tell(rt, what, &sample)
}
