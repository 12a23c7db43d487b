//! The built-in definitions.
ghost use Rattle.std.specs.Prelude.{◌≡◌, ◌≤◌, length};
ghost use Rattle.units_io.specs.FileMap.{longest_file};
ghost use Rattle.deck.specs.BuiltIn as spec;

// The text, with a line feed at its end.
const BUILT_IN: &[u8] = b"# primitives
m !
kg !
s !
A !
K !
mol !
radian !dimensionless
# prefixes
giga- 1e9
mega- 1e6
kilo- 1000
deca- 10
deci- 1|10
centi- 1|100
milli- 1|1000
micro- 1e-6
nano- 1e-9
G- giga
M- mega
k- kilo
da- deca
d- deci
c- centi
m- milli
u- micro
n- nano
# units
meter m
gram 1|1000 kg
g gram
second s
sec s
minute 60 s
min minute
hour 60 min
hr hour
day 24 hr
Hz 1/s
newton kg m/s^2
N newton
J N m
W J/s
Pa N/m^2
liter 1|1000 m^3
l liter
L liter
in 254|10000 m
inch in
ft 12 in
foot ft
feet ft
yd 3 ft
yard yd
mile 5280 ft
lb 0.45359237 kg
pound lb
percent 1|100
% percent
!locale en_US
gallon 231 in^3
!endlocale
!locale en_GB
gallon 4.54609 liter
!endlocale
quart 1|4 gallon
pint 1|2 quart
# nonlinear
degF 5|9 K
stdtemp 273.15 K
tempC(x) units=[1;K] domain=[-273.15,) range=[0,) x K + stdtemp ; (tempC +(-stdtemp))/K
tempF(x) units=[1;K] domain=[-459.67,) range=[0,) (x+(-32)) degF + stdtemp ; \\
    (tempF+(-stdtemp))/degF + 32
tempcelsius() tempC
zincgauge[in] 1 0.002, 10 0.02, 15 0.04, \\
    19 0.06, 23 0.1
!unitlist hms hr;min;sec
!unitlist ftin ft;in
";

/// Returns the text of the built-in definitions, which are used if no file is named.
#[tactic(auto, unfolding(crate::specs::BuiltIn::built_in_deck_text))]
pub fn built_in_text() -> &'static [u8]
    ensures is { result.now ≡ spec.built_in_deck_text }
    ensures short { length result.now ≤ longest_file }
{
    BUILT_IN
}
