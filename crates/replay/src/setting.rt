// What stands about a setting's value in a list of settings.
use std::io;

// Its name, behind a comma where another setting stands before it; from then on one does.
pub(crate) fn put_name(rt: &impl Print, behind: &mut bool, name: &str) -> io::Result<()> {
    if *behind {
        print!(rt; ", ")?;
    }
    *behind = true;
    print!(rt; "{name}")
}

// Whether it is in doubt.
pub(crate) fn put_doubt(rt: &impl Print, known: bool) -> io::Result<()> {
    if !known {
        print!(rt; " in doubt")?;
    }
    Ok(())
}
