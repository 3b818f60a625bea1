// One link, one image: for any page of registers, and LoRa's page.
#![tactic(auto)]
