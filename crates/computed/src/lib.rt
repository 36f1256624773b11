// Whole files and a list of calls, computed from the rule book's definitions, in specs/. They take seconds, so they stand where no edit checks them again.

#![tactic(auto)]
