// The lines of short months, written part by part. What was asked may be any bytes, as in `printing::saying`. `say` there and `say_months` differ in
// the type that is printed; one function for both would be told it at each call, as `Months::from(..)`.
use std::io::{self, Write};
use stock::months::Months;

// What was asked, and the short months.
pub fn say_months<R: Print, M: Into<Months>>(rt: &R, what: &[u8], told: M) -> io::Result<()> {
    let told: Months = told.into();
    rt.write_all(what)?;
    writeln!(io::writer(rt), " {told}")
}

// The short months of a right, by its place in the list.
pub fn say_right<R: Print, M: Into<Months>>(rt: &R, right: usize, told: M) -> io::Result<()> {
    let told: Months = told.into();
    rt.write_all(b"short months of right")?;
    write!(io::writer(rt), " {right}")?;
    say_months(rt, b":", told)
}
