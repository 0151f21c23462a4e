// The weights of the heat and of the drying, from the slope and from the psychrometric constant g.
ghost use Rattle.std.specs.Prelude.{◌≡◌};
ghost use Rattle.numbers.specs.Ranges.{InRange};
ghost use Rattle.sheet.specs.Quantities as quantities;
ghost use Rattle.sheet.specs.StepSheet as sheet;

// g, of the pressure and the latent heat.
pub fn psychrometric(p: i64, heat: i64) -> i64
    requires { InRange quantities.pressure p × InRange quantities.latent_heat heat }
    ensures { (result ≡ sheet.g p heat) × InRange quantities.psychrometric result }
{
    numbers::quotient(603_000_000_000 * p, 622 * heat)
}

// w1, of the slope and g. w2 is what it lacks of 10⁹.
pub fn weight(d: i64, g: i64) -> i64
    requires { InRange quantities.slope d × InRange quantities.psychrometric g }
    ensures { (result ≡ sheet.w1 d g) × InRange quantities.weight result }
{
    numbers::quotient(1_000_000_000 * d, d + g)
}
