// Bytes in plain words.

// Bytes as two digits each, with spaces between.
pub fn print_hex(rt: &HostRuntime, bytes: &[u8]) -> anyhow::Result<()> {
    for (i, b) in bytes.iter().enumerate() {
        if i > 0 {
            print!(rt; " ")?;
        }
        print!(rt; "{b:02x}")?;
    }
    println!(rt; "")?;
    Ok(())
}
