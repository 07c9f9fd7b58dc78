// The canonical image on named policies: definitions and theorems alone.
#![tactic(auto)]
