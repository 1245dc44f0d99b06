// Numbers written into a lent buffer.
ghost use Rattle.std.specs.Prelude.{[], ◌∷◌};
ghost use Rattle.basics.specs.Outputs.{Appends};
ghost use Rattle.text.specs.Lines.{decimal, carried};

use basics::output::Output;

// A number in decimal: the digits of its tenth part, then its last digit. It calls itself on a lower number.
pub fn put_decimal(out: &mut Output, n: u32)
    ensures { Appends out.old (decimal n) 10 out.new }
{
    if n < 10 {
        out.put(48 + (n as u8));
    } else {
        put_decimal(out, n / 10);
        out.put(48 + ((n % 10) as u8));
    }
}

// A value that a line carries: a space and the number.
pub fn put_value(out: &mut Output, n: u32)
    ensures { Appends out.old (carried (n ∷ [])) 11 out.new }
{
    out.put(b' ');
    put_decimal(out, n);
}
