// SHA-256 (FIPS 180-4): the standard as definitions, and laws about them. No code.
#![tactic(auto)]
