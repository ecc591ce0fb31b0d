//! Sample category files, in the manner of the categories of their numbers. They are this project's own: no UAP
//! order, slot, width, layout or edition in them is claimed to be EUROCONTROL's.

/// A sample in the manner of monoradar target reports.
pub const CAT048_P1: &str = r#"category 048 edition "048-P1"
items {
item 010 "Data source identifier" group { SAC element 8 raw SIC element 8 raw }
item 140 "Time of day" element 24 quantity unsigned 1 128 "s"
item 020 "Target report descriptor" extended {
  part { TYP element 3 raw SIM element 1 raw RDP element 1 raw SPI element 1 raw RAB element 1 raw }
  part { TST element 1 raw spare 2 ME element 1 raw MI element 1 raw FOEFRI element 2 raw } }
item 040 "Measured position in polar coordinates" group {
  RHO element 16 quantity unsigned 1 256 "NM" THETA element 16 quantity unsigned 360 65536 "deg" }
item 070 "Mode 3/A code" group { V element 1 raw G element 1 raw L element 1 raw spare 1 MODE3A element 12 octal }
item 090 "Flight level" group { V element 1 raw G element 1 raw FL element 14 quantity signed 1 4 "FL" }
item 130 "Plot characteristics" compound { SRL element 8 raw SRR element 8 raw SAM element 8 raw
  PRL element 8 raw PAM element 8 raw RPD element 8 raw APD element 8 raw }
item 220 "Aircraft address" element 24 raw
item 240 "Aircraft identification" element 48 icao
item 250 "Mode S MB" counted { group { MB element 56 raw BDS1 element 4 raw BDS2 element 4 raw } }
item 161 "Track number" group { spare 4 TRN element 12 integer unsigned }
item 042 "Calculated position" group {
  X element 16 quantity signed 1 128 "NM" Y element 16 quantity signed 1 128 "NM" }
item 200 "Calculated track velocity" group {
  GSP element 16 quantity unsigned 1 16384 "NM/s" HDG element 16 quantity unsigned 360 65536 "deg" }
item 170 "Track status" extended {
  part { CNF element 1 raw RAD element 2 raw DOU element 1 raw MAH element 1 raw CDM element 2 raw }
  part { TRE element 1 raw GHO element 1 raw SUP element 1 raw TCC element 1 raw spare 3 } }
item 210 "Track quality" element 32 raw
item 030 "Warning and error conditions" byfx element 7 raw
item 080 "Mode 3/A confidence" element 16 raw
item 100 "Mode C code and confidence" element 32 raw
item 110 "Height by 3D radar" element 16 raw
item 120 "Radial Doppler speed" compound { CAL element 16 raw RDS counted { element 48 raw } }
item 230 "Communications and flight status" element 16 raw
item 260 "Resolution advisory" element 56 raw
item 055 "Mode 1 code" element 8 raw
item 050 "Mode 2 code" element 16 raw
item 065 "Mode 1 confidence" element 8 raw
item 060 "Mode 2 confidence" element 16 raw
item SP "Special purpose" explicit
item RE "Reserved expansion" explicit
}
uap { 010 140 020 040 070 090 130 220 240 250 161 042 200 170
      210 030 080 100 110 120 230 260 055 050 065 060 SP RE }
"#;

/// The same in a later edition, in which two spare bits of item 020 have names.
pub const CAT048_P2: &str = r#"category 048 edition "048-P2"
items {
item 010 "Data source identifier" group { SAC element 8 raw SIC element 8 raw }
item 140 "Time of day" element 24 quantity unsigned 1 128 "s"
item 020 "Target report descriptor" extended {
  part { TYP element 3 raw SIM element 1 raw RDP element 1 raw SPI element 1 raw RAB element 1 raw }
  part { TST element 1 raw ERR element 1 raw XPP element 1 raw ME element 1 raw MI element 1 raw FOEFRI element 2 raw } }
item 040 "Measured position in polar coordinates" group {
  RHO element 16 quantity unsigned 1 256 "NM" THETA element 16 quantity unsigned 360 65536 "deg" }
item 070 "Mode 3/A code" group { V element 1 raw G element 1 raw L element 1 raw spare 1 MODE3A element 12 octal }
item 090 "Flight level" group { V element 1 raw G element 1 raw FL element 14 quantity signed 1 4 "FL" }
item 130 "Plot characteristics" compound { SRL element 8 raw SRR element 8 raw SAM element 8 raw
  PRL element 8 raw PAM element 8 raw RPD element 8 raw APD element 8 raw }
item 220 "Aircraft address" element 24 raw
item 240 "Aircraft identification" element 48 icao
item 250 "Mode S MB" counted { group { MB element 56 raw BDS1 element 4 raw BDS2 element 4 raw } }
item 161 "Track number" group { spare 4 TRN element 12 integer unsigned }
item 042 "Calculated position" group {
  X element 16 quantity signed 1 128 "NM" Y element 16 quantity signed 1 128 "NM" }
item 200 "Calculated track velocity" group {
  GSP element 16 quantity unsigned 1 16384 "NM/s" HDG element 16 quantity unsigned 360 65536 "deg" }
item 170 "Track status" extended {
  part { CNF element 1 raw RAD element 2 raw DOU element 1 raw MAH element 1 raw CDM element 2 raw }
  part { TRE element 1 raw GHO element 1 raw SUP element 1 raw TCC element 1 raw spare 3 } }
item 210 "Track quality" element 32 raw
item 030 "Warning and error conditions" byfx element 7 raw
item 080 "Mode 3/A confidence" element 16 raw
item 100 "Mode C code and confidence" element 32 raw
item 110 "Height by 3D radar" element 16 raw
item 120 "Radial Doppler speed" compound { CAL element 16 raw RDS counted { element 48 raw } }
item 230 "Communications and flight status" element 16 raw
item 260 "Resolution advisory" element 56 raw
item 055 "Mode 1 code" element 8 raw
item 050 "Mode 2 code" element 16 raw
item 065 "Mode 1 confidence" element 8 raw
item 060 "Mode 2 confidence" element 16 raw
item SP "Special purpose" explicit
item RE "Reserved expansion" explicit
}
uap { 010 140 020 040 070 090 130 220 240 250 161 042 200 170
      210 030 080 100 110 120 230 260 055 050 065 060 SP RE }
"#;

/// A sample in the manner of monoradar service messages.
pub const CAT034_P1: &str = r#"category 034 edition "034-P1"
items {
item 010 "Data source identifier" group { SAC element 8 raw SIC element 8 raw }
item 000 "Message type" element 8 table { 1 "North marker message" 2 "Sector crossing message" }
item 030 "Time of day" element 24 quantity unsigned 1 128 "s"
item 020 "Sector number" element 8 raw
item 041 "Antenna rotation period" element 16 raw
item 050 "System configuration and status" compound {
  COM element 8 raw - - PSR element 8 raw SSR element 8 raw MDS element 16 raw - }
item 060 "System processing mode" compound {
  COM element 8 raw - - PSR element 8 raw SSR element 8 raw MDS element 8 raw - }
item 070 "Message count values" counted { group { TYP element 5 raw COUNT element 11 integer unsigned } }
item 100 "Polar window" element 64 raw
item 110 "Data filter" element 8 raw
item 120 "Position of data source" element 64 raw
item 090 "Collimation error" element 16 raw
item RE "Reserved expansion" explicit
item SP "Special purpose" explicit
}
uap { 010 000 030 020 041 050 060 070 100 110 120 090 RE SP }
"#;

/// A sample in the manner of multilateration status messages.
pub const CAT019_P1: &str = r#"category 019 edition "019-P1"
items {
item 010 "Data source identifier" group { SAC element 8 raw SIC element 8 raw }
item 000 "Message type" element 8 raw
item 140 "Time of day" element 24 quantity unsigned 1 128 "s"
item 550 "System status" element 8 raw
item 551 "Station status" byfx element 7 raw
item RE "Reserved expansion" explicit
item SP "Special purpose" explicit
}
uap { 010 000 140 550 551 - - - - - - - RE SP }
"#;
