// What an image made of a list of records states, and what is read of a written image: theorems alone.
#![tactic(auto)]
