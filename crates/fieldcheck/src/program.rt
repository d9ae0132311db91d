//! The firing program that is built in: cone six, for a technician who has no card at hand.

pub const CONE_SIX: &str = "\
# Cone 6 glaze firing, medium speed
%YAML 1.2
---
name: Cone 6 glaze     # kiln 2, front room
kiln: \"Ofen 2, Töpferei\"
unit: °C
segments:
  - {ramp: 60, to: 120, hold: 30}     # drying
  - {ramp: 150, to: 500, hold: 0}
  - ramp: 80                          # quartz inversion at 573 °C
    to: 650
    hold: 10
  - {ramp: 180, to: 1120, hold: 0}
  - {ramp: 60, to: 1222, hold: 100}   # cone 6 bends
  - {ramp: -80, to: 1040, hold: 15}
notes: |
  Vent open up to 400 °C, then closed.
  Keep the lid shut above 150 °C.
...
";
